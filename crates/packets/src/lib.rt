// What is right of packets, and the theorems about it, stand in specs/: there is no code here.
#![tactic(auto)]
