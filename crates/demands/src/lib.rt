// The three demands on the product: their page is `specs/Demands.antt`, the proofs stand in `proofs/`. There is no code
// here: the demands speak of what a cycle call, a check, the sizes and the fresh state answer and leave, and of whole
// traces, by the definitions in the contracts of `casefile`, `evaluator` and `tracer`. That they speak of something is
// computed over the files of `specs/Listing.antt` and `specs/Examples.antt`. The words of the public functions
// (`specs/Words.antt`) stand here too, and that each function has one answer, over the contracts of all crates.
#![tactic(auto)]
