#![tactic(auto)]

// The definitions of the documents' rules, files and texts on inputs that are worked by hand (specs/).
