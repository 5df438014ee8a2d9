// Theorems alone, no code: the three demands over whole histories, the twelve examples, uniqueness, the wrong programs.
// Follows the demands, and 01, section Twelve examples to be proved, and what promises owe.
// Stands on every crate of the library.
#![tactic(auto)]
