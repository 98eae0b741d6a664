// What the parts add up to: theorems alone, in specs/.
#![tactic(auto)]
