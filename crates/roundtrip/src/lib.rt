// What is proved of the readers and writers of messages, beyond the functions' contracts: each message that the agent writes reads back
// (specs/Written.antt). There is no function here.
#![tactic(auto)]
