// Document 01's rules of the card and demand 3. The definitions stand in specs/, the theorems in proofs/; there is no code here.
#![tactic(auto)]
