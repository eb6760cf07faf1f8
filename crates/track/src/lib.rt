// One voice of a cue sheet: the calls that the sheet makes of it and its track, and why the cues of other voices change nothing. There is no code here.
#![tactic(auto)]
