// Nothing runs here: specs/ has the examples of document 01, computed.
#![tactic(auto)]
