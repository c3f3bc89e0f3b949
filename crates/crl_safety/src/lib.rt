//! What may be taken for granted of a node of a run before each of its events. There is no code here: the code of a node
//! cites these definitions, and `crl_sound` proves them of every node of every run.
#![tactic(auto)]
