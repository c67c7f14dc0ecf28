//! Tests of the description of a circuit: counts, levels, loops, longest paths, unobserved nets, and the whole text.

mod counts;
mod levels;
mod paths;
mod text;
