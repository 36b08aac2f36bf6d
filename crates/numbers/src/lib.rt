// No code: headers as plain numbers, as the C calls pass them, in definitions and laws. What makes the numbers stands in the crates above.
#![tactic(auto)]
