// What Oatlantern promises, stated in one place. There is no code here: the statements are in specs/, over the definitions that
// the contracts cite, and shown in proofs/.
#![tactic(auto)]
