// General definitions and laws, in specs/. There is no code here.
#![tactic(auto)]
