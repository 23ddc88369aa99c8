// Facts that belong to no subject. There is no code here: specs/ has the definitions, proofs/ the laws about them.
#![tactic(auto)]
