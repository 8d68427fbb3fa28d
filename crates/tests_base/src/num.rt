// Numbers, and numbers that aren't 0.

mod non_zero;
mod numbers;
mod texts;
