// What each exported call promises to a host, and that each promise leaves one answer; this crate has no function.
#![tactic(auto)]
