// The room argument and what collect and make room keep, once for a region and for whatever follows a moved page. No code.
#![tactic(auto)]
