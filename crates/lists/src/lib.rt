// Lists by their places, tests of lists, and loops that go through one: no code, the definitions and the laws that other crates cite.

#![tactic(auto)]
