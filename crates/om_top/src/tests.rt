//! Whole runs over objects in memory.

mod calls;
mod case;
mod check;
mod compile;
mod eval;
mod eval_faults;
mod faulty_programs;
mod gauge;
mod graph;
mod models;
mod programs;
mod run_program;
mod sample;
mod words;
