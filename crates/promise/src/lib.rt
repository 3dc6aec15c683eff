// Definitions and theorems only: what a model promises of its memory over whole lists of events.
#![tactic(auto)]
