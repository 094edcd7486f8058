// Document 01's worked cases, computed on the definitions of packets. They stand in specs/: there is no code here.
#![tactic(auto)]
