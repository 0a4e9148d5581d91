// The three demands on the analyser, stated and proved. (specs/Demands.antt is the page to open first.)

#![tactic(auto)]
