// Orders of steps: specs alone.
#![tactic(auto)]
