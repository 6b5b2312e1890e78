// Document 01's "Supply, demand, least share" and rows 30 to 35. The definitions stand in specs/, the theorems in
// proofs/; there is no code here.
#![tactic(auto)]
