// Theorems of the same lists in any mix of forms: common pages and their seeks are alike; this crate has no function.
#![tactic(auto)]
