// That every well-formed capture file is one that is written: what its items are written as is the file itself. There is no function here.
#![tactic(auto)]
