// That acting by what a datagram asks is what the datagram call's definition says: no function. The proof of `agent::datagram` cites it, one law for each of
// its answers.
#![tactic(auto)]
