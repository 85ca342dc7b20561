// Words, places, nets, logs and certificates over numbers of any size: definitions and laws, in specs/. There is no code here.
#![tactic(auto)]
