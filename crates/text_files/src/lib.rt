#![tactic(auto)]

// What the two texts share: files taken one after the other, up to the first that is refused. Definitions and laws; no code.
