// No function: sheets and their rulings, by computation. They stand above gather, since computing a sheet is dear.
#![tactic(auto)]
