// No code: document 01's sample session, run by computing its definitions.
#![tactic(auto)]
