// The calls for C, one file for each, the two calls of make in one: the answer is a struct of the paper's number and
// the values, all of 64 bits; of the book a byte. The header is include/pelzurivan.h. C reads numbers, and each struct by
// its own name there: so refusals are numbers here, and structs of the same fields stay apart.
#![tactic(auto)]

pub mod bound;
pub mod check_sheet;
pub mod check_told;
pub mod find_best;
pub mod find_several;
pub mod find_told;
pub mod input_times;
pub mod load_cut;
pub mod load_desk;
pub mod load_store;
pub mod look_up;
pub mod make_any;
pub mod make_sheet;
pub mod make_told;
pub mod read_formula;
pub mod rebuild_table;
pub mod rebuild_told;
pub mod rewrite;
pub mod run_desk;
pub mod run_sheet;
pub mod run_told;
pub mod settle;
pub mod shorter;
pub mod slack;
pub mod try_several;
pub mod try_split;
pub mod try_told;
pub mod turn;
mod word;
pub mod write_formula;
