// No function: what each spelling takes, in plain words, and what the numbers mean.
#![tactic(auto)]
