// No code: the converted pixel of the return path as defined, which the contracts of its calls cite, and the laws about it.
#![tactic(auto)]
