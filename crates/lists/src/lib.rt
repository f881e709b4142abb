// Lists, which are what slices hold: definitions and laws, and the order of two.
#![tactic(auto)]
