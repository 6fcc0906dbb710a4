// No function: what a sheet is, written down as it is put together, and the judge shown to take exactly that.
#![tactic(auto)]
