// Definitions and theorems only: what the calls on images give back and leave.
#![tactic(auto)]
