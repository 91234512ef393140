// Theorems alone: check and run share one calendar.
#![tactic(auto)]
