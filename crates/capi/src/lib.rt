// The static library for C: thin functions on numbers and slices, each with the contract of the routine that it calls.
// include/mowfrost.h declares all that it exports, and nothing else.
#![tactic(auto)]

mod files_c; // files
mod floats_c; // the float helpers
mod ids_c; // the routines on ids
mod record_c; // the record
