//! The row table of the interpreter's ROM, for both editions: the blocks and places of its main code, what is known at the head of each one,
//! how many instructions it has, and the main cycles since the dispatch point.
//!
//! It is what the proofs of the six parts have in common, so that each part is proved by itself though its code goes on in another one. It
//! stands on the image, its labels and its map, on the definitions of the language, and on the theory of rows. The layers above, one for
//! each part, prove of their own blocks that main moves keep the rows, and that no instruction of the part's code, as the map has it, is
//! missing. They may rely on the table, on the heads of the other parts' blocks, and on what the proofs here share: both ROMs as one list,
//! so that code is run for both at once; the machine at a head with what is known filled in; that ticks keep what a place says; and the step
//! at the end of a routine.
#![tactic(auto)]
