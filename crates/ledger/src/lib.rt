// Definitions and theorems only: what the memory and the saved bits must be, read off the accepted events by selections and starts.
#![tactic(auto)]
