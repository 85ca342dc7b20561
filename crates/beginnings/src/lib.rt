// Which bytes are a beginning of a head or of a certificate, and where a bundle that is refused departs from one: in specs/. There is no code here.
#![tactic(auto)]
