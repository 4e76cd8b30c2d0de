// Why the feeds of a merge may be judged at the start: while a transfer is open no call of a feed moves what the others go by. There is no function here.
#![tactic(auto)]
