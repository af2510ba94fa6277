// Theorems of common pages by the step rule: its pages, seeks and looks, and its next page; this crate has no function.
#![tactic(auto)]
