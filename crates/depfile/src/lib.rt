// Header lists from the compiler: definitions and laws alone.
#![tactic(auto)]
