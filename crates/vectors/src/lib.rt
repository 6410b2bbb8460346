// Nothing runs here: specs/ has calls that the second program made, computed once more by the definitions.
#![tactic(auto)]
