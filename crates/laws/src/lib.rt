// Laws about numbers, lists and loops, with no JPEG 2000 in them. They stand in specs/; this crate has no code.
#![tactic(auto)]
