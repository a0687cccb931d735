//! Constraints as rows of bits, 16 words of 64 bits to a row: definitions and lemmas, and no code.
#![tactic(auto)]
