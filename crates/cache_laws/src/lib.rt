// No code: what the calls of anchors_cache mean on document 01's cache, and the claim about any list of them.
#![tactic(auto)]
