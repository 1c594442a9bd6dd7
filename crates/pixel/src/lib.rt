// No code: the converted pixel as defined, which the contracts of conversion cite, and the laws about it.
#![tactic(auto)]
