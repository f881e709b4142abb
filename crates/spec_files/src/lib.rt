// Laws of split manifests, over the definitions of `spec`: no code.
#![tactic(auto)]
