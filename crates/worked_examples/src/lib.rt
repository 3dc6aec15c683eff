// Definitions and theorems only: the worked examples of document 01, computed.
#![tactic(auto)]
