// Unit vectors, and how long a normalized vector is: no code, but laws.
#![tactic(auto)]
