// No code: greys that are sent to PQ and converted again, as defined, and the laws about them.
#![tactic(auto)]
